//! What a stack shows as work, and the reports of shows and of new layers, as bytes.
#![tactic(auto)]

mod emits;
mod layer_reports;
mod listings;
mod reports;
mod shares;
mod vacuum_reports;
mod works;

pub use emits::{EmitFault, emit};
pub use layer_reports::layer_report_of;
pub use listings::report_by;
pub use reports::{push_name, push_number, push_number_word, push_word};
pub use shares::{joined, share_of, side_by_side};
pub use vacuum_reports::vacuum_report_of;
pub use works::ShowWork;
