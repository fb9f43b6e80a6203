ghost use Rattle.std.specs.Prelude.{◌≡◌, ℕ, List, map, bytes_eq};
ghost use Rattle.std.specs.List.{list_any};
ghost use Rattle.command_line.specs.Tables.{are_distinct};

/// What has a name.
pub trait Named {
    ghost named: { Self → List ℕ };

    fn name(&self) -> &[u8]
        ensures { result.now ≡ named self.now };
}

/// Whether no name stands twice.
pub fn have_distinct_names<T: Named>(items: &[T]) -> bool
    ensures { result ≡ are_distinct (map T.named items.now) }
{
    for i in 0..items.len() {
        if has_name(&items[i + 1..], items[i].name()) {
            return false;
        }
    }
    true
}

fn has_name<T: Named>(items: &[T], name: &[u8]) -> bool
    ensures { result ≡ list_any (bytes_eq name.now) (map T.named items.now) }
{
    items.iter().any(|item| name == item.name())
}
