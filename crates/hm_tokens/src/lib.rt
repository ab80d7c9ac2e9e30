//! Assembly text as tokens: how the text of an instruction is cut into them, and how it is printed from them.
#![tactic(auto)]

mod line;
mod lists;
mod marks;
mod names;
mod text;
mod token;

pub use line::{Tokens, read_tokens};
pub use lists::single_registers;
pub use marks::Mark;
pub use names::{
    condition_name, double_name, is_label_name, read_condition, read_double, read_register,
    read_vector, register_name, vector_name,
};
pub use text::{InstrText, Part};
pub use token::{Token, is_number, is_the_mark, skip, token_at};
