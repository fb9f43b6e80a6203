//! All words at one moment.
ghost use Rattle.std.specs.Prelude.{◌≡◌, ◌∷◌, [], List, length};
ghost use Rattle.exec_table.specs.Boards.{NodeView};
ghost use Rattle.exec_table.specs.Made.{just_first, without_first_node};
ghost use Rattle.exec_table.specs.Seats.{IsSeatOf, identity_of, sizes_in};
ghost use Rattle.exec_table.specs.Surveys.{AreAll, EachSeat, HasAll, IsBack, IsLent, Surveyed, joined_views, noted_word, views};

use crate::plays::{Enter, Gather, Note, Peel, Survey};
use crate::rule::{ExecTable, NodeSeat};
use crate::types::View;
use atomic_table::Seat;
use chunk_data::Chunk;

fn noted(i: usize, word: u64) -> u64
    ensures { result ≡ noted_word i word }
{
    if i == 0 { word % (1 << 63) } else { word }
}

type AnySeat = Seat<Option<Chunk>, View>;

impl ExecTable {
    // Moves the first node of a seat to another seat.
    fn move_node(&self, from: &mut AnySeat, to: &mut AnySeat)
        requires from { from.old.table_id ≡ self.now.table.shared.table_id }
        requires to { to.old.table_id ≡ self.now.table.shared.table_id }
        requires node { (x : NodeView) × (xs : List NodeView) × (from.old.me.0.nodes ≡ x ∷ xs) }
        ensures from { (from.new.table_id ≡ from.old.table_id)
            × (from.new.me ≡ (without_first_node from.old.me.0, from.old.me.1)) }
        ensures to { (to.new.table_id ≡ to.old.table_id)
            × (to.new.me ≡ (joined_views to.old.me.0 (just_first from.old.me.0), to.old.me.1)) }
    {
        let piece = self.table.shared.split_seat::<Peel>(from);
        self.table.shared.join_seat::<Gather>(to, piece);
    }

    // Reads each word, but for the stop bit. While the root has every node, none of them changes.
    fn note(&self, root: &mut AnySeat, words: &mut [u64])
        requires root { root.old.table_id ≡ self.now.table.shared.table_id }
        requires all { HasAll (sizes_in self.now).nodes root.old.me.0 }
        requires none { root.old.me.0.noted ≡ [] }
        requires words { length words.old ≡ self.now.table.shared.table_id.words }
        ensures root { (root.new.table_id ≡ root.old.table_id)
            × (root.new.me.0.nodes ≡ root.old.me.0.nodes) }
        ensures shown { Surveyed words.new root.old.me.0.nodes }
    {
        for i in 0..words.len() {
            words[i] = noted(i, self.table.shared.load::<Note>(root, i));
        }
        self.table.shared.load::<Survey>(root, 0);
    }

    // Takes all nodes to the root.
    pub(crate) fn gather(&self, root: &mut AnySeat, seats: &mut [NodeSeat])
        requires root { (root.old.table_id ≡ self.now.table.shared.table_id)
            × (root.old.me.0.nodes ≡ []) × (root.old.me.0.noted ≡ []) }
        requires seats { AreAll (identity_of self.now) seats.old }
        ensures root { (root.new.table_id ≡ root.old.table_id)
            × (root.new.me.0.nodes ≡ views seats.old) × (root.new.me.0.noted ≡ []) }
        ensures seats { EachSeat IsLent seats.old seats.new }
        ensures many { length seats.new ≡ length seats.old }
    {
        for i in 0..seats.len() {
            self.move_node(&mut seats[i].seat, root);
        }
    }

    /// Reads each word at a moment at which no node can change one: the words, in which the stop
    /// bit is left unset, and what the seats know show one state that meets the laws.
    pub fn survey(&self, seats: &mut [NodeSeat], words: &mut [u64])
        requires seats { AreAll (identity_of self.now) seats.old }
        requires words { length words.old ≡ self.now.table.shared.table_id.words }
        ensures seats { EachSeat (IsBack (identity_of self.now)) seats.old seats.new }
        ensures shown { Surveyed words.new (views seats.old) }
    {
        let mut root = self.table.shared.load_new_seat::<Enter>(0).1;
        self.gather(&mut root, seats);
        self.note(&mut root, words);
        for i in 0..seats.len() {
            self.move_node(&mut root, &mut seats[i].seat);
        }
    }
}
