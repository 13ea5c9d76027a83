//! The leader of a run: what it keeps, and the parts of its turns: asking, admitting, looking, fetching, keeping,
//! counting expiries, offering and refreshing.
#![tactic(auto)]

pub mod admission;
pub mod advancing;
pub mod ahead;
pub mod asking;
pub mod by_number;
pub mod expiries;
pub mod fetching;
pub mod keeping;
pub mod leader;
pub mod looks;
pub mod missing_blocks;
pub mod offering;
mod place_list;
pub mod places;
pub mod refreshing;
pub mod settling;
pub mod stepping;

pub use admission::admit;
pub use advancing::advance;
pub use ahead::{NextTerm, bytes_of, next_of};
pub use asking::ask;
pub use expiries::count_expired;
pub use fetching::{count_fetches, fetches};
pub use keeping::{RoundPlaces, keep_served};
pub use leader::{Job, Leader, LedPlan};
pub use looks::look_up_missing;
pub use missing_blocks::{BlockAt, missing};
pub use offering::offer_served;
pub use refreshing::refresh_stale;
pub use settling::settle;
pub use stepping::{admit_some, count_at, fetch_at, keep_at, look_up_at, offer_at, refresh_at};
