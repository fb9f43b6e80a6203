//! What the nodes of a graph know of how the graph grew while workers run it: notes of growths.
//!
//! Each reserve of a graph is one node's, by whose growths its unborn nodes are born. The node
//! alone has the reserve's note, and appends each growth to it; a node that was born of the reserve
//! has a copy. Whatever the threads do, the growths of a copy are the first of those of the note,
//! in order: `gather` tells it of a copy that comes back.
//!
//! What is noted of a growth is the caller's choice: the type `G`. It is known to proofs alone. At
//! run time there is a word for each reserve, which counts its growths.
//!
//! - `rule.rt`: what a seat knows, the rule, and what each of its steps tells
//! - `notes.rt`: the notes of all reserves and their calls
#![tactic(auto)]

mod notes;
mod rule;

pub use notes::{GrowthNote, GrowthNotes, NoteCopy, NotesRoot};
pub use rule::{NoteView, OneList, Role};
