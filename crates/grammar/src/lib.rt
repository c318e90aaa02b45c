//! The grammar of rules: definitions and what is proved of them. There is no code here; the crates above read and write by
//! these definitions, and their calls carry the laws in their contracts.
#![tactic(auto)]
