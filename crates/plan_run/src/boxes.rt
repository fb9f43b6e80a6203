ghost use Rattle.std.specs.Prelude.{◌≡◌, ℕ, ◌+◌, ◌<◌, ◌≤◌, ◌++◌, ◌∷◌, [], length, map, count_by, slice_index_or, vec_capacity, OnOk, OnErr};
ghost use Rattle.std.specs.List.{All};
ghost use Rattle.chunk_data.specs.Places.{Changes};
ghost use Rattle.query_model.specs.Kinds.{kind_of};
ghost use Rattle.proc_api.specs.Names.{IsBlank, Loads, Unloads, is_of, no_box};
ghost use Rattle.exec_laws.specs.Runs.{box_at};
ghost use Rattle.plan_run.specs.Boxes.{EachBox, IsStill, LoadsFirst, PutsBehind, spec_at};
ghost use Rattle.plan_run.specs.Plans.{kinds_taken};
ghost use Rattle.plan_run.specs.Stock.{first_box_of, without_first_box, taken_for, left_after, HasStock};

use chunk_data::{List, Memory};
use proc_api::{LoadRefusal, Processor, Rack};
use query_model::processor_spec::{Kind, Spec};

/// Takes the first box of each spec's kind in turn, and then of each kind that is kept, in room
/// that is there.
pub(crate) fn take_boxes(
    rack: &mut Rack,
    specs: &Vec<Spec>,
    kept: &List<Kind>,
    boxes: &mut Vec<Box<dyn Processor + Send>>,
)
    requires stock { HasStock (kinds_taken specs.now.items kept.now)
        (map (λ b. seen b) rack.old.boxes.items) }
    requires empty { boxes.old.items ≡ [] }
    requires room { length specs.now.items + length kept.now ≤ vec_capacity boxes.old }
    ensures taken { map (λ b. seen b) boxes.new.items
        ≡ taken_for (kinds_taken specs.now.items kept.now)
        (map (λ b. seen b) rack.old.boxes.items) }
    ensures left { map (λ b. seen b) rack.new.boxes.items
        ≡ left_after (kinds_taken specs.now.items kept.now)
        (map (λ b. seen b) rack.old.boxes.items) }
    ensures spare { length rack.new.boxes.items + length boxes.new.items
        ≤ vec_capacity rack.new.boxes }
{
    for i in 0..specs.len() + kept.len() {
        take_next(rack, kind_taken(specs, kept, i), boxes);
    }
}

#[tactic(auto, using(crate::proofs::Taking::places))]
fn kind_taken(specs: &Vec<Spec>, kept: &List<Kind>, i: usize) -> Kind
    requires { i < length specs.now.items + length kept.now }
    ensures { result ≡ slice_index_or (kinds_taken specs.now.items kept.now) i result }
{
    if i < specs.len() {
        specs[i].kind()
    } else {
        *kept.get(i - specs.len())
    }
}

/// Takes the first box of the kind, which is there.
fn take_next(rack: &mut Rack, kind: Kind, boxes: &mut Vec<Box<dyn Processor + Send>>)
    requires there { 0 < count_by (is_of kind) (map (λ b. seen b) rack.old.boxes.items) }
    requires room { length boxes.old.items < vec_capacity boxes.old }
    ensures taken { map (λ b. seen b) boxes.new.items ≡ map (λ b. seen b) boxes.old.items
        ++ first_box_of kind (map (λ b. seen b) rack.old.boxes.items) ∷ [] }
    ensures left { map (λ b. seen b) rack.new.boxes.items
        ≡ without_first_box kind (map (λ b. seen b) rack.old.boxes.items) }
    ensures one_more { length boxes.new.items ≡ length boxes.old.items + 1 }
    ensures one_less { length rack.new.boxes.items + 1 ≡ length rack.old.boxes.items }
    ensures rack_room { vec_capacity rack.old.boxes ≤ vec_capacity rack.new.boxes }
    ensures room { vec_capacity boxes.old ≤ vec_capacity boxes.new }
{
    match rack.take(kind) {
        Some(b) => boxes.push_reserved(b),
        None => unreachable!(),
    }
}

/// Loads the first boxes, each with its spec, until there is no memory for it.
pub(crate) fn load_boxes<P: Processor>(boxes: &mut Vec<P>, specs: Vec<Spec>) -> Result<(), Memory>
    requires blank { All IsBlank (map P.seen boxes.old.items) }
    requires enough { length specs.items ≤ length boxes.old.items }
    requires kinds { (n : ℕ) → n < length specs.items → kind_of (spec_at specs.items n)
        ≡ (box_at (map P.seen boxes.old.items) n).kind }
    ensures ok { OnOk result (LoadsFirst (length specs.items) specs.items
        (map P.seen boxes.old.items) (map P.seen boxes.new.items)) }
    ensures still { EachBox IsStill (map P.seen boxes.old.items) (map P.seen boxes.new.items) }
{
    let mut specs = specs;
    for i in 0..specs.len() {
        load_at(boxes, i, specs.remove(0))?;
    }
    Ok(())
}

/// Loads a blank box with a spec of its kind, which only want of memory refuses.
#[tactic(auto, using(crate::proofs::Loading::box_read))]
fn load_at<P: Processor>(boxes: &mut Vec<P>, i: usize, spec: Spec) -> Result<(), Memory>
    requires in_range { i < length boxes.old.items }
    requires blank { IsBlank (box_at (map P.seen boxes.old.items) i) }
    requires of_kind { kind_of spec ≡ (box_at (map P.seen boxes.old.items) i).kind }
    ensures ok { OnOk result (Changes no_box i (λ p q. Loads p spec q)
        (map P.seen boxes.old.items) (map P.seen boxes.new.items)) }
    ensures unchanged { OnErr result (Changes no_box i (λ p q. q ≡ p)
        (map P.seen boxes.old.items) (map P.seen boxes.new.items)) }
{
    match boxes[i].load(spec) {
        Ok(()) => Ok(()),
        Err(LoadRefusal::Memory) => Err(Memory),
        Err(LoadRefusal::NotBlank) | Err(LoadRefusal::WrongKind) => unreachable!(),
    }
}

/// Unloads each of the boxes, so that it is blank whatever it was.
pub fn unload_boxes<P: Processor>(boxes: &mut Vec<P>)
    ensures unloaded { EachBox Unloads (map P.seen boxes.old.items) (map P.seen boxes.new.items) }
    ensures blank { All IsBlank (map P.seen boxes.new.items) }
{
    for i in 0..boxes.len() {
        unload_at(boxes, i);
    }
}

fn unload_at<P: Processor>(boxes: &mut Vec<P>, i: usize)
    requires { i < length boxes.old.items }
    ensures { Changes no_box i Unloads (map P.seen boxes.old.items) (map P.seen boxes.new.items) }
{
    boxes[i].unload();
}

/// Unloads the boxes, and puts them behind those of the rack, in order.
pub(crate) fn give_back(rack: &mut Rack, mut boxes: Vec<Box<dyn Processor + Send>>)
    requires { length rack.old.boxes.items + length boxes.items ≤ vec_capacity rack.old.boxes }
    ensures { PutsBehind Unloads (map (λ b. seen b) boxes.items)
        (map (λ b. seen b) rack.old.boxes.items) (map (λ b. seen b) rack.new.boxes.items) }
{
    unload_boxes(&mut boxes);
    put_back(rack, boxes);
}

/// Puts boxes behind those of the rack, in room that is there.
fn put_back(rack: &mut Rack, mut boxes: Vec<Box<dyn Processor + Send>>)
    requires { length rack.old.boxes.items + length boxes.items ≤ vec_capacity rack.old.boxes }
    ensures { rack.new.boxes.items ≡ rack.old.boxes.items ++ boxes.items }
{
    match rack.boxes.append(&mut boxes) {
        Ok(()) => {}
        Err(_) => unreachable!(),
    }
}
