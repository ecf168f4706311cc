// Each operation on random rows.
use crate::random_case::{Base, Case};
use crate::same;
use alu::{Flags, Operation, Worked, operate};
use byte_rows::Row;
use counting::binary::Binary;
use counting::decimal::Decimal;
use counting::{Link, chain};
use registers::Status;
use std::process::Abort;
use std::test::Fail;

const CASES: u32 = 1000;

// What an operation should leave: a number, read in this base, CY, OVF and E.
#[derive(Clone, Copy, PartialEq, Eq, Debug)]
struct Left {
    base: Base,
    number: u128,
    cy: bool,
    ovf: bool,
    e: u8,
}

impl Case {
    // A number that is at most once around.
    fn around(&self, n: u128) -> u128 {
        let whole = self.whole(self.base);
        if n >= whole { n.wrapping_sub(whole) } else { n }
    }

    // What a number stands for as a signed one, with `whole` added.
    fn raised(&self, n: u128) -> u128 {
        let whole = self.whole(self.base);
        if n < whole / 2 {
            n.wrapping_add(whole)
        } else {
            n
        }
    }

    // Whether the signed numbers do not add up. In decimal nothing overflows.
    fn overflows(&self, a: u128, b: u128, sum: u128) -> bool {
        let added = self.raised(a).wrapping_add(self.raised(b));
        let whole = self.whole(self.base);
        self.base == Base::Binary && added != self.raised(sum).wrapping_add(whole)
    }

    fn sum(&self, a: u128, b: u128) -> Left {
        let all = a.wrapping_add(b);
        let number = self.around(all);
        Left {
            base: self.base,
            number,
            cy: all != number,
            ovf: self.overflows(a, b, number),
            e: self.e,
        }
    }

    fn difference(&self, a: u128, b: u128) -> Left {
        let all = a.wrapping_add(self.whole(self.base)).wrapping_sub(b);
        let number = self.around(all);
        Left {
            base: self.base,
            number,
            cy: a >= b,
            ovf: self.overflows(number, b, a),
            e: self.e,
        }
    }

    // CY and OVF are 0; the number is read in a base.
    fn plain(&self, base: Base, number: u128) -> Left {
        Left {
            base,
            number,
            cy: false,
            ovf: false,
            e: self.e,
        }
    }

    // A shift loses a bit to CY or a digit to E.
    fn shifted(&self, number: u128, lost: u128, turned: bool) -> Left {
        let left = self.plain(Base::Binary, number);
        match self.base {
            Base::Binary => Left {
                cy: lost == 1,
                ovf: turned,
                ..left
            },
            Base::Decimal => Left {
                e: (lost % 16) as u8,
                ..left
            },
        }
    }

    fn top(&self, n: u128) -> u128 {
        n.wrapping_shr(self.bits().wrapping_sub(1))
    }

    fn up(&self, a: u128, radix: u128, incoming: u128) -> Left {
        let whole = self.whole(Base::Binary);
        let all = a.wrapping_mul(radix).wrapping_add(incoming);
        let lost = all.wrapping_shr(self.bits());
        let number = all.wrapping_sub(lost.wrapping_mul(whole));
        self.shifted(number, lost, self.top(a) != self.top(number))
    }

    fn down(&self, a: u128, radix: u128, incoming: u128) -> Left {
        let all = a.wrapping_add(incoming.wrapping_mul(self.whole(Base::Binary)));
        let number = all.checked_div(radix).unwrap_or(0);
        let lost = all.wrapping_sub(number.wrapping_mul(radix));
        self.shifted(number, lost, false)
    }
}

// What is seen of a row of so many bits, by its number.
fn seen(case: &Case, number: u128, left: Left) -> Status {
    Status {
        dcm: case.base == Base::Decimal,
        cy: left.cy,
        ovf: left.ovf,
        lsb: number % 2 == 1,
        msb: case.top(number) == 1,
        z: number == 0,
        ldz: number.wrapping_shr(case.bits().wrapping_sub(4)) == 0,
        rdz: number % 16 == 0,
    }
}

fn check(rt: &impl Abort, case: &Case, op: Operation, left: Left) -> Result<(), Fail> {
    let mut after = *case;
    let told = operate(
        op,
        case.flags(),
        &mut after.data[..case.span],
        case.operand(),
    )
    .map_err(|_| Fail::new("a byte was not accepted"))?;
    same(rt, (op, case), left.base.number(after.data()), left.number);
    let status = seen(case, Base::Binary.number(after.data()), left);
    same(rt, (op, case), told, Flags { status, e: left.e });
    let worked = Worked {
        row: Row::new(after.data, case.span),
        cy: left.cy,
        ovf: left.ovf,
        e: left.e,
    };
    same(rt, (op, case), case.operate_row(op), Ok(worked));
    Ok(())
}

fn sums(rt: &impl Abort, case: &Case) -> Result<(), Fail> {
    let a = case.base.number(case.data());
    let b = case.base.number(case.operand());
    let rest = case.whole(case.base).wrapping_sub(a).wrapping_sub(1);
    for (op, left) in [
        (Operation::Increment, case.sum(a, 1)),
        (Operation::Decrement, case.difference(a, 1)),
        (Operation::Negate, case.difference(0, a)),
        (Operation::Complement, case.plain(case.base, rest)),
        (Operation::Add, case.sum(a, b)),
        (Operation::Subtract, case.difference(a, b)),
        (Operation::Compare, case.difference(a, b)),
    ] {
        check(rt, case, op, left)?;
    }
    Ok(())
}

fn logic(rt: &impl Abort, case: &Case) -> Result<(), Fail> {
    let a = Base::Binary.number(case.data());
    let b = Base::Binary.number(case.operand());
    for (op, number) in [
        (Operation::Test, a),
        (Operation::Clear, 0),
        (Operation::Or, a | b),
        (Operation::ExclusiveOr, a ^ b),
        (Operation::And, a & b),
        (Operation::Load, b),
    ] {
        check(rt, case, op, case.plain(Base::Binary, number))?;
    }
    Ok(())
}

fn shifts(rt: &impl Abort, case: &Case) -> Result<(), Fail> {
    let a = Base::Binary.number(case.data());
    let (radix, put) = match case.base {
        Base::Binary => (2, u128::from(case.cy)),
        Base::Decimal => (16, u128::from(case.e)),
    };
    for (op, left) in [
        (Operation::LogicalLeft, case.up(a, radix, 0)),
        (Operation::ExtendedLeft, case.up(a, radix, put)),
        (Operation::LogicalRight, case.down(a, radix, 0)),
        (Operation::ExtendedRight, case.down(a, radix, put)),
    ] {
        check(rt, case, op, left)?;
    }
    Ok(())
}

// Chains with a carry in, and an operand of half the data's length.
fn chains(rt: &impl Abort, case: &Case) {
    let carry = u128::from(case.cy);
    let a = case.base.number(case.data());
    let b = case.base.number(case.short_operand());
    let rest = case.whole(case.base).wrapping_sub(a).wrapping_sub(1);
    let sum = case.sum(a, b.wrapping_add(carry));
    let difference = case.difference(a, b.wrapping_add(carry));
    let negated = case.difference(0, a.wrapping_add(carry));
    for (link, number, out) in [
        (Link::Add, sum.number, sum.cy),
        (Link::Subtract, difference.number, !difference.cy),
        (Link::Negate, negated.number, !negated.cy),
        (Link::Complement, rest, case.cy),
    ] {
        let mut after = *case;
        let (row, operand) = (&mut after.data[..case.span], case.short_operand());
        let carried = match case.base {
            Base::Binary => chain::<Binary>(link, row, operand, case.cy),
            Base::Decimal => chain::<Decimal>(link, row, operand, case.cy),
        };
        same(rt, (link, case), case.base.number(after.data()), number);
        same(rt, (link, case), carried, out);
    }
}

#[test]
fn both_modes(rt: HostRuntime) -> Result<(), Fail> {
    let mut seed = 20261118u64;
    for _ in 0..CASES {
        for base in [Base::Binary, Base::Decimal] {
            let case = Case::new(seed, base);
            sums(&rt, &case)?;
            logic(&rt, &case)?;
            shifts(&rt, &case)?;
            chains(&rt, &case);
            seed = case.seed;
        }
    }
    Ok(())
}
