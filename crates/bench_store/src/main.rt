// Adds 60,000 distinct terms to a store and looks each up again 20 times. bench/store.rs does the same in Rust.
#![tactic(auto)]

use terms::{Entry, Store};
use theory::{ArgSort, Handle, Head, Leaf, ListSort, MOST_ENTRIES, StoreFault, VarSort};

const COUNT: u32 = 60_000;

const ROUNDS: u32 = 20;

// The handles that the next terms are built over.
#[derive(Clone, Copy)]
struct Last {
    ty: Handle,
    region: Handle,
    list: Handle,
}

fn add_one(s: &mut Store, last: Last, i: u32) -> Result<Handle, StoreFault> {
    match i % 6 {
        0 => s.add_leaf(Leaf::Variable(VarSort::Ty, i)),
        1 => s.add_leaf(Leaf::Placeholder(ArgSort::Region, 3, i)),
        2 => s.add(Head::List(ListSort::Arguments), &[last.ty, last.region]),
        3 => s.add(Head::Constructor(i), &[last.list]),
        4 => s.add(
            Head::Value(u64::from(i).wrapping_mul(0x1234_5678_9ABC)),
            &[last.ty],
        ),
        _ => s.add_leaf(Leaf::Bound(ArgSort::Const, i % 64, i)),
    }
}

fn follow(last: Last, i: u32, term: Handle) -> Last {
    let mut next = last;
    match i % 6 {
        0 | 3 => next.ty = term,
        1 => next.region = term,
        2 => next.list = term,
        _ => {}
    }
    next
}

// One pass over the terms, from the first handles on: the sum of their handles.
fn pass(s: &mut Store, first: Last) -> u64 {
    let mut last = first;
    let mut sum = 0u64;
    for i in 0..COUNT {
        match add_one(s, last, i) {
            Ok(term) => {
                last = follow(last, i, term);
                sum = sum.wrapping_add(u64::from(term));
            }
            Err(_) => sum = sum.wrapping_add(1_000_000_000),
        }
    }
    sum
}

fn main(rt: HostRuntime) -> anyhow::Result<()> {
    let mut entries = vec![in rt.alloc(); Entry::VACANT; MOST_ENTRIES]?;
    let mut buckets = vec![in rt.alloc(); 0u32; 65_536]?;
    let mut items = vec![in rt.alloc(); 0u32; 262_144]?;
    let mut s = Store::new(&mut entries, &mut buckets, &mut items);
    let zero = Last {
        ty: 0,
        region: 1,
        list: 2,
    };
    let added = pass(&mut s, zero);
    let len = s.len();
    let mut found = 0u64;
    for _ in 0..ROUNDS {
        found = found.wrapping_add(pass(&mut s, zero));
    }
    s.cut(1_000);
    let cut = s.len();
    let again = pass(&mut s, zero);
    println!(rt; "{added} {len} {found} {cut} {again}")?;
    Ok(())
}
