// The semirings at their caps, with codes that are no members, and the ranges of m and k.
use crate::refused::refused;
use matrix::threshold::Threshold;
use semiring::costs::Costs;
use semiring::counts::Counts;
use semiring::residues::Residues;
use semiring::{Semiring, product_all, sum_all};
use std::process::Abort;
use std::test::Fail;

// Two codes, their sum and their product.
#[derive(Clone, Copy)]
struct Row(u64, u64, u64, u64);

fn holds<S: Semiring>(rt: &impl Abort, semiring: &S, rows: &[Row]) {
    for &Row(x, y, sum, product) in rows {
        assert_eq!(rt; semiring.sum(x, y), sum);
        assert_eq!(rt; semiring.product(x, y), product);
    }
}

#[test]
fn counts_stop(rt: HostRuntime) {
    let rows = [
        Row(2, 3, 5, 6),
        Row(999_999_999, 1, 1_000_000_000, 999_999_999),
        Row(1_000_000_000, 1, 1_000_000_000, 1_000_000_000),
        Row(1_000_000_000, 1_000_000_000, 1_000_000_000, 1_000_000_000),
        Row(1_000_000_000, 0, 1_000_000_000, 0),
        Row(40_000, 25_000, 65_000, 1_000_000_000),
        Row(1_000_000_001, 1, 0, 0),
        Row(1, 18_446_744_073_709_551_615, 0, 0),
    ];
    holds(&rt, &Counts, &rows);
    assert!(rt; Counts.is_member(1_000_000_000));
    assert!(rt; !Counts.is_member(1_000_000_001));
}

#[test]
fn residues_wrap(rt: HostRuntime) -> Result<(), Fail> {
    let seven = [
        Row(3, 5, 1, 1),
        Row(6, 6, 5, 1),
        Row(0, 4, 4, 0),
        Row(7, 1, 0, 0),
        Row(1, 7, 0, 0),
    ];
    holds(&rt, &Residues::try_from(7u64)?, &seven);
    let most = Residues::try_from(2_147_483_647u64)?;
    holds(
        &rt,
        &most,
        &[Row(2_147_483_646, 2_147_483_646, 2_147_483_645, 1)],
    );
    assert!(rt; most.is_member(2_147_483_646));
    assert!(rt; !most.is_member(2_147_483_647));
    Ok(())
}

#[test]
fn costs_stop_and_none_absorbs(rt: HostRuntime) {
    let rows = [
        Row(4, 9, 4, 13),
        Row(0, 9, 0, 9),
        Row(1_000_000_000_000, 1, 1, 1_000_000_000_000),
        Row(999_999_999_999, 1, 1, 1_000_000_000_000),
        Row(1_000_000_000_001, 5, 5, 1_000_000_000_001),
        Row(0, 1_000_000_000_001, 0, 1_000_000_000_001),
        Row(1_000_000_000_002, 5, 1_000_000_000_001, 1_000_000_000_001),
        Row(5, 1_000_000_000_002, 1_000_000_000_001, 1_000_000_000_001),
    ];
    holds(&rt, &Costs, &rows);
    assert!(rt; Costs.is_member(1_000_000_000_001));
    assert!(rt; !Costs.is_member(1_000_000_000_002));
}

// The sum and the product of a list.
fn list_is<S: Semiring>(rt: &impl Abort, semiring: &S, codes: &[u64], sum: u64, product: u64) {
    assert_eq!(rt; sum_all(semiring, codes), sum);
    assert_eq!(rt; product_all(semiring, codes), product);
}

#[test]
fn lists_start_at_zero_and_one(rt: HostRuntime) {
    list_is(&rt, &Counts, &[], 0, 1);
    list_is(&rt, &Costs, &[], 1_000_000_000_001, 0);
    list_is(&rt, &Counts, &[2, 3, 5], 10, 30);
    list_is(&rt, &Costs, &[8, 3, 5], 3, 16);
}

#[test]
fn ranges(rt: HostRuntime) {
    let moduli = [
        (0, Some(1)),
        (1, Some(1)),
        (2, None),
        (2_147_483_647, None),
        (2_147_483_648, Some(1)),
        (18_446_744_073_709_551_615, Some(1)),
    ];
    for (m, number) in moduli {
        assert_eq!(rt; refused(Residues::try_from(m)), number);
    }
    let thresholds = [(0, Some(1)), (1, None), (4, None), (5, Some(1))];
    for (k, number) in thresholds {
        assert_eq!(rt; refused(Threshold::try_from(k)), number);
    }
}
