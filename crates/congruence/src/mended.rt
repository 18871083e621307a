// The mended operations, each at a size of numbers: right by what the values stand for, on arguments made canonical, with canonical answers.
// A value outside the domain, or with a number that isn't one of the width, is refused by 1. Lattice, arithmetic, comparisons.
// Each operation has a rule of its own and asks the domain first: there is no more for them to share.
ghost use Rattle.std.specs.Prelude.{◌≡◌, ◌&&◌, Ok};
ghost use Rattle.whole.specs.Range.{fits?};
ghost use Rattle.whole.specs.Sized.{width_of};
ghost use Rattle.refusal.specs.Answer.{is, told};
ghost use Rattle.congruence.specs.Answer.{within};
ghost use Rattle.congruence.specs.Set.{domain_at?};
ghost use Rattle.congruence.specs.Mended as spec;

use crate::{Congruence, form, need, rules};
use refusal::Refusal;
use std::cmp::Ordering;
use whole::Size;

// ---- what is asked first

fn numbers_fit(size: Size, a: Congruence) -> bool
    ensures { result ≡ (fits? (width_of size) a.constant && fits? (width_of size) a.modulus) }
{
    size.fits(a.constant) && size.fits(a.modulus)
}

// A value of the domain, and both its numbers are of the width.
pub fn in_domain(size: Size, a: Congruence) -> bool
    ensures { result ≡ domain_at? (width_of size) a }
{
    a.in_domain() && numbers_fit(size, a)
}

// Beside the one that asks no width: one for both would take the test as a closure, which is no plainer.
fn both_in_domain(size: Size, a: Congruence, b: Congruence) -> bool
    ensures { result ≡ (domain_at? (width_of size) a && domain_at? (width_of size) b) }
{
    in_domain(size, a) && in_domain(size, b)
}

// ---- lattice

pub fn disjoint(size: Size, a: Congruence, b: Congruence) -> Result<bool, Refusal>
    ensures { told result ≡ spec.disjoint (width_of size) a b }
{
    need(both_in_domain(size, a, b))?;
    Ok(rules::apart(form(a), form(b)))
}

pub fn partial_cmp(size: Size, a: Congruence, b: Congruence) -> Result<Option<Ordering>, Refusal>
    ensures { told result ≡ spec.partial_cmp (width_of size) a b }
{
    need(both_in_domain(size, a, b))?;
    Ok(rules::inclusion(form(a), form(b)))
}

pub fn join(size: Size, a: Congruence, b: Congruence) -> Result<Congruence, Refusal>
    ensures { told result ≡ spec.join (width_of size) a b }
{
    need(both_in_domain(size, a, b))?;
    Ok(rules::joint(size, form(a), form(b)))
}

pub fn widen(size: Size, new: Congruence, previous: Congruence) -> Result<Congruence, Refusal>
    ensures { told result ≡ spec.widen (width_of size) new previous }
{
    join(size, new, previous)
}

pub fn meet(size: Size, a: Congruence, b: Congruence) -> Result<Congruence, Refusal>
    ensures { told result ≡ spec.meet (width_of size) a b }
{
    need(both_in_domain(size, a, b))?;
    Ok(rules::common(size, form(a), form(b)))
}

// ---- arithmetic

pub fn neg(size: Size, a: Congruence) -> Result<Congruence, Refusal>
    ensures { told result ≡ spec.neg (width_of size) a }
{
    need(in_domain(size, a))?;
    Ok(rules::negative(size, form(a)))
}

pub fn add(size: Size, a: Congruence, b: Congruence) -> Result<Congruence, Refusal>
    ensures { told result ≡ spec.add (width_of size) a b }
{
    need(both_in_domain(size, a, b))?;
    Ok(rules::sum(size, form(a), form(b)))
}

pub fn sub(size: Size, a: Congruence, b: Congruence) -> Result<Congruence, Refusal>
    ensures { told result ≡ spec.sub (width_of size) a b }
{
    need(both_in_domain(size, a, b))?;
    Ok(rules::difference(size, form(a), form(b)))
}

pub fn mul(size: Size, a: Congruence, b: Congruence) -> Result<Congruence, Refusal>
    ensures { told result ≡ spec.mul (width_of size) a b }
{
    need(both_in_domain(size, a, b))?;
    Ok(rules::product(size, form(a), form(b)))
}

pub fn div(size: Size, a: Congruence, b: Congruence) -> Result<Congruence, Refusal>
    ensures { told result ≡ spec.div (width_of size) a b }
{
    need(both_in_domain(size, a, b))?;
    Ok(rules::quotient_class(size, form(a), form(b)))
}

// ---- comparisons

pub fn equals(size: Size, a: Congruence, b: Congruence) -> Result<Congruence, Refusal>
    ensures { told result ≡ spec.equals (width_of size) a b }
{
    need(both_in_domain(size, a, b))?;
    Ok(rules::equality(form(a), form(b)))
}

pub fn less(size: Size, a: Congruence, b: Congruence) -> Result<Congruence, Refusal>
    ensures { told result ≡ spec.less (width_of size) a b }
{
    need(both_in_domain(size, a, b))?;
    Ok(rules::below(form(a), form(b)))
}

pub fn greater(size: Size, a: Congruence, b: Congruence) -> Result<Congruence, Refusal>
    ensures { told result ≡ spec.greater (width_of size) a b }
{
    less(size, b, a)
}

pub fn less_or_equal(size: Size, a: Congruence, b: Congruence) -> Result<Congruence, Refusal>
    ensures { told result ≡ spec.less_or_equal (width_of size) a b }
{
    need(both_in_domain(size, a, b))?;
    Ok(rules::at_most(form(a), form(b)))
}

pub fn greater_or_equal(size: Size, a: Congruence, b: Congruence) -> Result<Congruence, Refusal>
    ensures { told result ≡ spec.greater_or_equal (width_of size) a b }
{
    less_or_equal(size, b, a)
}
