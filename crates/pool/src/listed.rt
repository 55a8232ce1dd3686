// The forms that a block lists: the slots of the working table that hold them, in table order, each once, constants left out.
ghost use Rattle.std.specs.Prelude.{◌≡◌, ◌||◌, ◌*◌, ◌≤◌, ◌<◌, length};
ghost use Rattle.terms.specs.View.{numbers_from};
ghost use Rattle.pool.specs.Listing.{constant_in, among, TableRoom, Numbers, Listed};

// Whether the form in a slot of the working table is a constant.
fn is_constant(monomial: &[u64], terms: &[u8], slot: usize) -> bool
    requires { (16 * slot < length monomial.now) × (slot < length terms.now) }
    ensures { result ≡ constant_in monomial.now terms.now slot }
{
    let count = terms[slot];
    if 1 < count {
        return false;
    }
    if count == 0 {
        return true;
    }
    monomial[16 * slot] == 0
}

// Whether a slot is among the first of a list.
fn is_among(order: &[u8], count: usize, slot: u8) -> bool
    requires { count ≤ length order.now }
    ensures { result ≡ among (numbers_from order.now 0 count) slot }
{
    order[..count].contains(&slot)
}

// Whether a slot is left out: a constant's, or one that is there already.
fn is_out(monomial: &[u64], terms: &[u8], order: &[u8], count: usize, slot: u8) -> bool
    requires { TableRoom monomial.now terms.now × (count ≤ length order.now) × (slot < 64) }
    ensures { result ≡ (constant_in monomial.now terms.now slot || among (numbers_from order.now 0 count) slot) }
{
    if is_constant(monomial, terms, usize::from(slot)) {
        return true;
    }
    is_among(order, count, slot)
}

// The slots of the listed forms, at the front of `order`; how many there are.
pub fn listed(
    monomial: &[u64],
    terms: &[u8],
    number: &[u8],
    polynomials: usize,
    order: &mut [u8],
) -> usize
    requires { TableRoom monomial.now terms.now × Numbers number.now polynomials × (64 ≤ length order.old) }
    ensures { Listed monomial.now terms.now number.now polynomials order.new result }
{
    let mut count = 0;
    for i in 0..polynomials {
        let slot = number[i];
        if !is_out(monomial, terms, order, count, slot) {
            order[count] = slot;
            count += 1;
        }
    }
    count
}
