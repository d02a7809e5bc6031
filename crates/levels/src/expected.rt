// "has no such mark, or its last one differs from the expected three"
ghost use Rattle.std.specs.Prelude.{◌≡◌};
ghost use Rattle.paper.specs.Levels as levels;
ghost use Rattle.levels.specs.Seen.{off_by};

use paper::{Asked, Data};

fn same_three(picl: i64, user: i64, trace: i64, asked: Asked) -> bool
    ensures { result ≡ levels.expected asked (Data.Three picl user trace) }
{
    picl == asked.picl && user == asked.user && trace == asked.trace
}

fn expected(values: Data, asked: Asked) -> bool
    ensures { result ≡ levels.expected asked values }
{
    match values {
        Data::Three(picl, user, trace) => same_three(picl, user, trace, asked),
        Data::Others => false,
    }
}

// Of a processor, by the places of its last record and of its last mark, `listed` for none.
pub(crate) fn off(store: &[u32], listed: usize, last: usize, mark: usize, asked: Asked) -> bool
    ensures { result ≡ off_by asked store.now listed last mark }
{
    if last == listed {
        return false;
    }
    if mark == listed {
        return true;
    }
    !expected(store::values_at(store, mark), asked)
}
