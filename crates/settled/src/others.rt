// What the atoms of other polynomials say of a polynomial two at once, where its set is cut by the deductions from single atoms already. 02, #111:
// "What a list says of p includes these": the findings of all pairs of atoms other than p. The words of the list's forms are lent (crate search).
ghost use Rattle.std.specs.Prelude.{◌≡◌, ◌<◌};
ghost use Rattle.rules.specs.Signs.{inside};
ghost use Rattle.rules.specs.TwoAtoms.{tries, cut_by_all};
ghost use Rattle.rules.specs.Rounds.{other_than as other_than_of};
ghost use Rattle.terms.specs.View.{sets_of};
ghost use Rattle.table.specs.Table.{form_at, atoms_of};
ghost use Rattle.round.specs.Views.{lent_table};
ghost use Rattle.round.specs.Signing.{SignedSlot, Ready};
ghost use Rattle.search.specs.Filled.{Filled};
ghost use Rattle.search.specs.Words.{Words};
ghost use Rattle.settled.specs.Others.{OtherThan, SilencedSlot};

use round::list::many;
use search::pairs::cut_by_pairs;
use signs::SignSet;
use table::Atoms;
use terms::Board;

// The atoms of a list but those of the polynomial in slot number.
pub fn other_than(list: Atoms, number: usize) -> Atoms
    requires { number < 64 }
    ensures { OtherThan list number result }
{
    let end = many(list.count);
    let mut others = list;
    let mut next = 0;
    for i in 0..end {
        let other = list.number[i];
        let set = list.set[i];
        let k = (other % 64) as usize;
        if number != k {
            others.number[next] = other;
            others.set[next] = set;
            next += 1;
        }
    }
    others.count = next;
    others
}

// The list, in which the atoms of the polynomial in slot number have the full set: these have no tries, and the list's words serve it as they are.
fn silent(list: Atoms, number: usize) -> Atoms
    requires { number < 64 }
    ensures { SilencedSlot list number result }
{
    let mut quiet = list;
    for i in 0..many(list.count) {
        let other = list.number[i];
        let k = (other % 64) as usize;
        if number == k {
            quiet.set[i] = SignSet::FULL.0;
        }
    }
    quiet
}

// A set of the polynomial in slot number, cut by all pairs of the others. An empty set stays empty.
pub fn cut_by_others(
    coefficient: &[i32],
    monomial: &[u64],
    terms: &[u8],
    sign: &[u8],
    masks: &[u64],
    columns: &[u64],
    falls: bool,
    variables: usize,
    board: Board,
    list: Atoms,
    number: usize,
    set: SignSet,
) -> SignSet
    requires ready { let t = lent_table coefficient monomial terms variables in
        Ready t (sets_of board) list sign.now × ((board.variables ≡ variables) × (number < 64)) }
    requires signed_filled { let t = lent_table coefficient monomial terms variables in
        SignedSlot t (sets_of board) sign.now number × Filled (sets_of board) }
    requires words { Words coefficient.now monomial.now terms.now sign.now list masks.now columns.now falls }
    ensures { let t = lent_table coefficient.entry monomial.entry terms.entry variables in
        let p = form_at t number in
        result.0 ≡ cut_by_all set.0 (tries (sets_of board) p (other_than_of p (atoms_of t list))) }
{
    if set.0 == 0 {
        return set;
    }
    cut_by_pairs(
        coefficient,
        monomial,
        terms,
        sign,
        masks,
        columns,
        falls,
        board,
        silent(list, number),
        number,
        set,
        true,
    )
}

// Whether what the pairs leave of a set lies inside another: whether they leave nothing of what is outside of that, which alone they have to cut.
pub fn lies_inside(
    coefficient: &[i32],
    monomial: &[u64],
    terms: &[u8],
    sign: &[u8],
    masks: &[u64],
    columns: &[u64],
    falls: bool,
    variables: usize,
    board: Board,
    list: Atoms,
    number: usize,
    set: SignSet,
    bound: SignSet,
) -> bool
    requires ready { let t = lent_table coefficient monomial terms variables in
        Ready t (sets_of board) list sign.now × ((board.variables ≡ variables) × (number < 64)) }
    requires signed_filled { let t = lent_table coefficient monomial terms variables in
        SignedSlot t (sets_of board) sign.now number × Filled (sets_of board) }
    requires words { Words coefficient.now monomial.now terms.now sign.now list masks.now columns.now falls × (set.0 < 8) }
    ensures { let t = lent_table coefficient.entry monomial.entry terms.entry variables in
        let p = form_at t number in
        result ≡ inside (cut_by_all set.0 (tries (sets_of board) p (other_than_of p (atoms_of t list)))) bound.0 }
{
    let outside = set.intersect(bound.complement());
    let left = cut_by_others(
        coefficient,
        monomial,
        terms,
        sign,
        masks,
        columns,
        falls,
        variables,
        board,
        list,
        number,
        outside,
    );
    left.0 == SignSet::EMPTY.0
}
