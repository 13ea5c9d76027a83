//! Pointer records, which stand for a file where its bytes do not, and the settings of the upload side.
#![tactic(auto)]

pub mod laws;
mod optional_text_field;
pub mod pointer_error;
mod read_fields;
pub mod session_context;
mod text_field;
pub mod translator_config;
mod written_fields;
pub mod xet_file_info;

pub use pointer_error::PointerError;
pub use session_context::SessionContext;
pub use translator_config::TranslatorConfig;
pub use xet_file_info::XetFileInfo;
