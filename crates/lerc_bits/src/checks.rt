// Whether packed counts are accepted, without their values.
ghost use Rattle.std.specs.Prelude.{◌≡◌, ◌≤◌, length};
ghost use Rattle.lerc_words.specs.Res.{marked};
ghost use Rattle.lerc_bits.specs.Bits.{unpacked, counts_by, counts, spanned, PlanKept};

use super::{Counts, Plan, all_below, inspect, keeps_bounds, unpack};
use lerc_words::Refusal;

// a table's values are not looked at, only the indices: none may be too large
fn check_table(s: &[u8], p: Plan) -> Result<Counts, Refusal>
    requires { PlanKept (length s.now) p × (1 ≤ p.entries) }
    ensures { result ≡ spanned (unpacked s.now p) }
{
    let mut index = [0u32; 256];
    unpack(s, p.at, p.n, p.width, &mut index);
    if all_below(&index, p.n, p.entries) {
        return Ok(Counts {
            n: p.n,
            next: p.next,
        });
    }
    Err(Refusal { number: 8, at: 0 })
}

// what `decode_plan` answers, without the values
pub fn check_plan(s: &[u8], p: Plan) -> Result<Counts, Refusal>
    ensures { result ≡ spanned (counts_by s.now p) }
{
    if !keeps_bounds(s.len(), p) {
        return Err(Refusal { number: 8, at: 0 });
    }
    if p.entries == 0 {
        return Ok(Counts {
            n: p.n,
            next: p.next,
        });
    }
    check_table(s, p)
}

// what `decode` answers, without the values
pub fn check(s: &[u8], start: usize) -> Result<Counts, Refusal>
    ensures { result ≡ spanned (marked start (counts s.now start)) }
{
    // no `?`: twenty instructions more for each table, since it takes the plan's first word apart
    let p = match inspect(s, start) {
        Ok(p) => p,
        Err(why) => return Err(why),
    };
    let got = check_plan(s, p);
    lerc_words::marked(got, start)
}
