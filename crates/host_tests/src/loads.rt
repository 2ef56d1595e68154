//! Loads of a seed, as `tools/slow/load.py` prints them.
use crate::rows::{field, number, phases_in_short, same};
use script_text::{Shape, generate};
use std::alloc::Global;
use std::process::Abort;

// The seed, then how many requests, workers, keys, and requests of an epoch; and the load, whose closes are slashes.
const LOADS: &str = "
0 | 0 | 1 | 1024 | 10000 | /
0 | 1 | 1 | 1024 | 10000 | 0 get 4818159893633476779,/
0 | 4 | 1 | 1024 | 3 | 0 get 4818159893633476779,0 get 9344711191398858085,0 put 14740922568947990257 [8f947f36d0d0f606],/0 get 17246876526918845464,/
0 | 6 | 1 | 4 | 3 | 0 get 15755400384260043839,0 get 11400714819323198485,0 put 11400714819323198485 [8f947f36d0d0f606],/0 get 0,0 get 0,0 get 15755400384260043839,/
12 | 4 | 2 | 3 | 2 | 0 del 8709371129873690708,1 get 15755400384260043839,/0 put 0 [d6309f77a14ab3b2],1 put 15755400384260043839 [de87b404df954434],/
18446744073709551615 | 5 | 3 | 65536 | 2 | 0 put 4782973522457675352 [b1a9556f832abf49],1 get 14156485919014243840,/2 put 11305581037188761258 [9f077c86bf717b8d],0 put 6078330684489433195 [a5839d2f04452987],/1 put 10092477366778252157 [b1d8daf8de267411],/
5 | 4 | 64 | 1 | 1 | 0 get 0,/1 get 11400714819323198485,/2 get 4354685564936845354,/3 put 15755400384260043839 [e736bb6a55cc984d],/
";

// The shape of a row.
fn shape_of(rt: &impl Abort, row: &str) -> Shape {
    Shape {
        ops: number(rt, row, 1),
        verifiers: number(rt, row, 2),
        keys: number(rt, row, 3),
        every: number(rt, row, 4),
    }
}

// The load of a row in short.
fn load_in_short(rt: &impl Abort, alloc: Global, row: &str) -> String {
    let shape = shape_of(rt, row);
    if shape.verifiers == 0 || shape.keys == 0 || shape.every == 0 {
        panic!(rt; "a shape of none");
    }
    let load = generate(alloc, number(rt, row, 0), &shape).expect(rt, "memory");
    phases_in_short(rt, alloc, &load)
}

#[test]
fn loads_are_made_as_the_slow_program_makes_them(rt: HostRuntime) {
    for row in LOADS.trim().lines() {
        let found = load_in_short(&rt, rt.alloc(), row);
        same(&rt, row, &found.as_str(), &field(&rt, row, 5));
    }
}
