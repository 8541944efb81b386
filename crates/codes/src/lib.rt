// The directives of a compiled format (02, request 6): the codes of a directive, and 8 bytes read as one.
#![tactic(auto)]

pub mod code;
pub mod entry;
