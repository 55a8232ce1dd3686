// Where p is one term that q does not have, and its sign set is ≠ or full: a + tb is its coefficient for every t.
// If that is not 0, no t is in L or U, and the merge need not be begun.
ghost use Rattle.std.specs.Prelude.{◌≡◌, ◌≤◌, length};
ghost use Rattle.deduce.specs.Runs.{Within};
ghost use Rattle.deduce.specs.Alone.{monomials_of, met, stands_alone as stands_alone_of};

use crate::Run;
use crate::last::asks_zero;

// Whether the merge meets the monomial m in a run: where monomials fall, whether the run has it.
pub fn meets(monomial: &[u64], m: u64, run: Run) -> bool
    requires { run.to ≤ length monomial.now }
    ensures { result ≡ met m (monomials_of monomial.now run) }
{
    for i in run.from..run.to {
        let its = monomial[i];
        if its <= m {
            return m == its;
        }
    }
    false
}

// Whether p is one such term.
pub fn stands_alone(coefficient: &[i32], monomial: &[u64], sign: &[u8], p: Run, q: Run) -> bool
    requires within_p { Within coefficient.now monomial.now sign.now p }
    requires within_q { Within coefficient.now monomial.now sign.now q }
    ensures { result ≡ stands_alone_of coefficient.now monomial.now sign.now p q }
{
    let i = p.from;
    if p.to - i != 1 || !asks_zero(sign[i]) {
        return false;
    }
    let a = coefficient[i];
    a != 0 && !meets(monomial, monomial[i], q)
}
