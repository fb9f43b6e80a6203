ghost use Rattle.std.specs.Prelude.{◌≡◌, ◌<◌, ◌≤◌, ◌++◌, ◌∷◌, [], Bool, length, slice_set, vec_capacity};
ghost use Rattle.port_word.specs.Actions.{is_want, noted_want, want_of};

use crate::flags::Action;

/// Puts an action at the end of the list, in room that is there.
pub(crate) fn note(actions: &mut Vec<Action>, action: Action)
    requires { length actions.old.items < vec_capacity actions.old }
    ensures items { actions.new.items ≡ actions.old.items ++ action ∷ [] }
    ensures room { vec_capacity actions.old ≤ vec_capacity actions.new }
{
    let _ = actions.push(action);
}

fn is_want_at(action: &Action, i: usize) -> bool
    ensures { result ≡ is_want i action.now }
{
    match action {
        Action::Want(j) | Action::Unwant(j) => *j == i,
        _ => false,
    }
}

/// The place of the Want or Unwant of input i, or the list's length.
fn want_place(actions: &[Action], i: usize) -> usize
    ensures bound { result ≤ length actions.now }
    ensures found { result < length actions.now → (b : Bool)
        → noted_want i b actions.now ≡ slice_set actions.now result (want_of b i) }
    ensures missing { result ≡ length actions.now → (b : Bool)
        → noted_want i b actions.now ≡ actions.now ++ want_of b i ∷ [] }
{
    for (k, action) in actions.iter().enumerate() {
        if is_want_at(action, i) {
            return k;
        }
    }
    actions.len()
}

/// Puts Want or Unwant of input i in the place of the earlier one, or at the end.
pub(crate) fn note_want(actions: &mut Vec<Action>, i: usize, needed: bool)
    requires { length (noted_want i needed actions.old.items) ≤ vec_capacity actions.old }
    ensures items { actions.new.items ≡ noted_want i needed actions.old.items }
    ensures room { vec_capacity actions.old ≤ vec_capacity actions.new }
{
    let k = want_place(actions.as_slice(), i);
    let action = if needed {
        Action::Want(i)
    } else {
        Action::Unwant(i)
    };
    if k < actions.len() {
        actions[k] = action;
    } else {
        note(actions, action);
    }
}
