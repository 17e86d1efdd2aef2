// The one search for an element by its name.
ghost use Rattle.std.specs.Prelude.{◌≡◌, ℕ, map, Option, Some, None};
ghost use Rattle.std.specs.Option.{option_map};
ghost use Rattle.levels.specs.Search.{newest_of, newest_labelled, Newest};

use syntax::Frame;

// What has a name.
pub trait Named {
    ghost label: { Self → ℕ };

    fn name(&self) -> u16
        ensures result { result ≡ label self.now };
}

impl Named for Frame {
    ghost label = { λ f. f.name };

    fn name(&self) -> u16 {
        self.name
    }
}

// The last place of the name in the slice.
pub fn newest<T: Named>(items: &[T], name: u16) -> Option<usize>
    ensures result { result ≡ newest_of (map T.Named.label items.now) name }
    ensures law { Newest 0 (map T.Named.label items.now) name result }
{
    items.iter().rposition(|item| item.name() == name)
}

// What may have a name.
pub trait MayBeNamed {
    ghost label: { Self → Option ℕ };

    fn name_if_any(&self) -> Option<u16>
        ensures result { result ≡ label self.now };
}

// A place that may be empty: nothing has no name.
impl<T: Named> MayBeNamed for Option<T> {
    ghost label = { λ o. option_map T.Named.label o };

    fn name_if_any(&self) -> Option<u16> {
        Some(self.as_ref()?.name())
    }
}

// The last place of the name in a slice of what may have one.
pub fn newest_filled<T: MayBeNamed>(items: &[T], name: u16) -> Option<usize>
    ensures result { result ≡ newest_labelled (map T.MayBeNamed.label items.now) name }
    ensures law { Newest None (map T.MayBeNamed.label items.now) (Some name) result }
{
    items
        .iter()
        .rposition(|item| item.name_if_any() == Some(name))
}
