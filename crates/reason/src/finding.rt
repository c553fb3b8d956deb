// The record of a name in a table.
ghost use Rattle.std.specs.Prelude.{◌≡◌, true};
ghost use Rattle.table.specs.Table.{is_good, records};
ghost use Rattle.table.specs.Steps.Standing.{At};
ghost use Rattle.reason.specs.Steps.{named_from};

// Where the record of a name stands in a good table, or where the table ends.
pub(crate) fn find(table: &[u8], name: &[u8]) -> usize
    requires { is_good table.now ≡ true }
    ensures { At table.now result (named_from name.now (records table.now)) }
{
    let mut at = 4;
    while let Some(f) = record::outline_at(table, at) {
        if order::compare_bytes(order::part(table, f.name, f.stop), name).is_eq() {
            return at;
        }
        at = f.past;
    }
    at
}
