//! Examples of rules: texts that are read and refused, every limit, parts with their operands and signs, writing; and of the
//! lists in fixed memory below them.
#![tactic(auto)]

mod lists;
mod parts;
mod texts;
mod writing;
