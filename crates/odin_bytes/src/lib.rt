//! Names, words, lines, numbers, escapes and fields: the small parts of which all texts and records are made.
#![tactic(auto)]

mod classes;
pub mod commands;
mod escapes;
mod fields;
pub mod laws;
mod lines;
mod names;
mod numbers;
mod words;

pub use classes::{
    are_params, is_id, is_key, is_key_byte, is_name, is_name_byte, is_string_text, is_value_byte,
};
pub use commands::Command;
pub use escapes::{escape, unescape};
pub use fields::{put_bytes, put_u8, put_u32, put_u64, take_bytes, take_u8, take_u32, take_u64};
pub use lines::{drop_cr, first_line, next_line};
pub use names::{Name, NameFault};
pub use numbers::{read_number, write_number};
pub use words::{cut_at, read_name};
