// canon: answers a script of goals, line by line, from a file or from standard input.
#![tactic(auto)]

use script::Session;
use std::fs::File;
use std::io::{BufRead, BufReader};
use std::{env, io};
use terms::{Entry, Store};
use theory::{MOST_ENTRIES, MOST_PLACES};

// The hash table of the store, and the parts of all its terms.
const BUCKETS: usize = 65_536;

const ITEMS: usize = 1_048_576;

// Writes the answer to each line of a script.
fn answer_all<R: BufRead + Drop>(
    rt: &HostRuntime,
    store: &mut Store<'_>,
    session: &mut Session,
    mut script: R,
) -> io::Result<()> {
    // One buffer for all lines, and no `split`, which makes one for each: blank lines took twice the time.
    let mut text = Vec::new(rt.alloc());
    for line in 1..u64::MAX {
        text.clear();
        if script.read_until(b'\n', &mut text)? == 0 {
            break;
        }
        if let Some(answer) = session.answer(store, line, &text)? {
            println!(rt; "{answer}")?;
        }
    }
    Ok(())
}

// The file that the command line names, if any.
fn script_path(rt: &HostRuntime) -> io::Result<Option<String>> {
    Ok(env::args(rt)?.nth(1))
}

fn open_script(rt: &HostRuntime, path: &str) -> io::Result<File> {
    match File::open(rt, path) {
        Ok(file) => Ok(file),
        Err(error) => {
            eprintln!(rt; "canon: the file {path} cannot be read: {error}")?;
            Err(error)
        }
    }
}

// The memory of the context is reserved here, once.
fn main(rt: HostRuntime) -> io::Result<()> {
    let heap = rt.alloc();
    let mut entries = vec![in heap; Entry::VACANT; MOST_ENTRIES]?;
    let mut buckets = vec![in heap; 0u32; BUCKETS]?;
    let mut items = vec![in heap; 0u32; ITEMS]?;
    let mut store = Store::new(&mut entries, &mut buckets, &mut items);
    let mut session = Session::new(heap, MOST_PLACES)?;
    match script_path(&rt)? {
        Some(path) => {
            let file = open_script(&rt, &path)?;
            answer_all(&rt, &mut store, &mut session, BufReader::new(heap, file)?)
        }
        None => answer_all(
            &rt,
            &mut store,
            &mut session,
            BufReader::new(heap, rt.stdin())?,
        ),
    }
}
