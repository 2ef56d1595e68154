//! Sums of multisets: lanes that add up, and multisets that are told apart.
use crate::rows::same;
use multiset_sum::{Part, Sum};

const MOST: u32 = u32::MAX;

/// The sum of elements whose hashes have these lanes.
fn sum_of(elements: &[[u32; 8]; 3]) -> Sum {
    let [first, second, third] = elements;
    Sum::zero().with(*first).with(*second).with(*third)
}

#[test]
fn lanes_add_up(rt: HostRuntime) {
    let table = [
        // three elements, the sum of each lane
        ([[0; 8]; 3], [0; 8]),
        (
            [
                [1, 2, 3, 4, 5, 6, 7, 8],
                [10, 20, 30, 40, 50, 60, 70, 80],
                [100, 200, 300, 400, 500, 600, 700, 800],
            ],
            [111, 222, 333, 444, 555, 666, 777, 888],
        ),
        ([[MOST; 8]; 3], [12_884_901_885; 8]),
    ];
    for (elements, want) in table {
        let sum = sum_of(&elements);
        same(&rt, "sum.lanes()", &sum.lanes(), &want);
        same(&rt, "sum.count()", &sum.count(), &3);
    }
}

#[test]
fn equal_multisets_have_equal_sums(rt: HostRuntime) {
    let [a, b, c] = [
        [1, 2, 3, 4, 5, 6, 7, MOST],
        [9; 8],
        [MOST, 6, 5, 4, 3, 2, 1, 0],
    ];
    let sum = sum_of(&[a, b, c]);
    same(&rt, "another order", &sum, &sum_of(&[c, a, b]));
    let pair = Sum::zero().with(b).with(a);
    let single = Sum::zero().with(c);
    same(&rt, "two parts", &sum, &pair.join(&single));
    same(&rt, "two parts the other way", &sum, &single.join(&pair));
    same(
        &rt,
        "an element twice",
        &(sum == sum_of(&[a, b, b])),
        &false,
    );
    // These sums agree in each lane, and differ in the count.
    same(
        &rt,
        "an element whose lanes are 0",
        &(single == single.with([0; 8])),
        &false,
    );

    let part = Part {
        verifier: 3,
        epoch: 7,
        added: pair,
        evicted: single,
    };
    same(&rt, "part", &part, &part);
    same(
        &rt,
        "part",
        &(part
            == Part {
                evicted: pair,
                ..part
            }),
        &false,
    );
}
