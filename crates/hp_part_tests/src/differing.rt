//! Whether values differ from each other.
ghost use Rattle.std.specs.Prelude.{◌↔◌, IsTrue};
ghost use Rattle.hp_part_tests.specs.Differing.{AllDiffer};

/// Whether each value is equal to itself alone.
pub fn all_differ<T: PartialEq>(values: &[T]) -> bool
    ensures { IsTrue result ↔ AllDiffer T.eq values.now }
{
    for (i, one) in values.iter().enumerate() {
        for (j, other) in values.iter().enumerate() {
            if (*one == *other) != (i == j) {
                return false;
            }
        }
    }
    true
}
