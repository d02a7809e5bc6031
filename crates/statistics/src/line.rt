// One statistics line: its pairs, read from its bytes and compared one by one.
ghost use Rattle.std.specs.Prelude.{◌≡◌, false, length};
ghost use Rattle.paper.specs.Line.{pairs_of, pairs_for};
ghost use Rattle.paper.specs.Statistics.{is_compared, pairs_in};
ghost use Rattle.field.specs.Cursor.{rest_at, read_as};
ghost use Rattle.store.specs.Layout.{entry_from};
ghost use Rattle.statistics.specs.Ready.{Stands, Before, pairs_differ, behind_found, differs_at};

use crate::pair;
use crate::total::Sums;
use field::Form;

// "Those with event field -1 are compared".
#[tactic(auto, using(crate::proofs::Signs::signed_tests), unfolding(paper::specs::Statistics::is_compared))]
fn is_compared(store: &[u32], i: usize) -> bool
    ensures { result ≡ is_compared (entry_from store.now i).body }
{
    parts::is_statistics(store::kind_at(store, i)) && store::event_at(store, i) == -1
}

// n pairs in the form and no more, of which one differs from what the records before record i come to.
fn pairs_differ(l: &[u8], at: usize, n: usize, form: Form, sums: Sums, i: usize) -> bool
    requires { Before sums.store.now sums.link.now sums.counts.now sums.times.now sums.lengths.now sums.heads.now i }
    ensures { result ≡ behind_found sums.entry.store.now (length sums.entry.link.now) i false (pairs_of (read_as form) 7 n (rest_at l.now at)) }
{
    let mut found = false;
    let mut p = at;
    for _ in 0..n {
        let Some((event, second)) = field::value_at(l, p, Form::Whole) else {
            return false;
        };
        let Some((told, next)) = field::value_at(l, second, form) else {
            return false;
        };
        found |= pair::differs(sums, i, event, told);
        p = next;
    }
    l.len() < p && found
}

// The pairs behind the six fields, of which one differs.
fn data_differ(l: &[u8], at: usize, kind: i64, n: usize, sums: Sums, i: usize) -> bool
    requires { Before sums.store.now sums.link.now sums.counts.now sums.times.now sums.lengths.now sums.heads.now i }
    ensures { result ≡ behind_found sums.entry.store.now (length sums.entry.link.now) i false (pairs_for kind n (rest_at l.now at)) }
{
    if n == 0 || 16 < n {
        return false;
    }
    let Some((_, next)) = field::value_at(l, at, values::quoted_form(kind)) else {
        return false;
    };
    let form = values::told_form(kind);
    pairs_differ(l, next, n, form, sums, i)
}

// A line whose bytes are given without its LF, for record i.
fn bytes_differ(l: &[u8], sums: Sums, i: usize) -> bool
    requires { Before sums.store.now sums.link.now sums.counts.now sums.times.now sums.lengths.now sums.heads.now i }
    ensures { result ≡ pairs_differ sums.entry.store.now (length sums.entry.link.now) i (pairs_in l.now) }
{
    let Ok((h, next)) = fields::read_head(l) else {
        return false;
    };
    data_differ(l, next, h.kind, h.count, sums, i)
}

// Record i calls for 19, if it is a statistics record that is compared.
pub(crate) fn line_differs(trace: &[u8], sums: Sums, i: usize) -> bool
    requires { Before sums.store.now sums.link.now sums.counts.now sums.times.now sums.lengths.now sums.heads.now i }
    ensures { Stands trace.now sums.entry.store.now i → result ≡ differs_at trace.now sums.entry.store.now (length sums.entry.link.now) i }
{
    if !is_compared(sums.store, i) {
        return false;
    }
    let start = store::start_at(sums.store, i);
    if trace.len() < start {
        return false;
    }
    let end = octets::find(trace, start, 10);
    bytes_differ(&trace[start..end], sums, i)
}
