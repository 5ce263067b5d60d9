//! The program `conspecj`: the top call over the files that the words name and over standard output. What a program prints that is
//! run goes to standard error.
#![tactic(auto)]

ghost use Rattle.std.specs.Prelude.{IfOk, []};
ghost use Rattle.api_shelf.specs.Shelf.{AllAreSilent, views};
ghost use Rattle.api_shelf.specs.Telling.{HasLog};

use api_shelf::{ApiDevice, Console, SlotOf};
use guest_runner::FreeGate;
use inliner_tool::{Status, run_tool};
use mon_base::{Bytes, List, NoMemory};
use mon_store::{DirStore, OutSink};
use std::alloc::Global;
use std::env;
use std::process::ExitCode;
use std::rt::Env;

fn main(rt: HostRuntime) -> ExitCode {
    let alloc = rt.alloc();
    let Ok(console) = Box::new(alloc, Console::new(alloc, rt.stderr())) else {
        return ExitCode::from(Status::Memory.code());
    };
    let console: Box<dyn ApiDevice + Send> = console;
    let status = match (words_of(&rt), printing(alloc, console)) {
        (Ok(words), Ok(slots)) => {
            let mut store = DirStore::new(&rt);
            let mut out = OutSink::new(&rt);
            let mut kept = None;
            let status = run_tool(
                &rt,
                alloc,
                words.as_slice(),
                &mut store,
                &mut out,
                slots,
                &FreeGate,
                &mut kept,
            );
            drop(kept);
            status
        }
        _ => Status::Memory,
    };
    ExitCode::from(status.code())
}

/// The words after the program's name.
fn words_of<R: Env + AllocGlobal>(rt: &R) -> Result<List<Bytes>, NoMemory> {
    let Ok(arguments) = env::args(rt) else {
        return Err(NoMemory);
    };
    let mut words = List::new(rt.alloc());
    for word in arguments.skip(1) {
        words.push(Bytes::from_slice(rt.alloc(), word.as_bytes())?)?;
    }
    Ok(words)
}

/// The devices of a run: this one, for the class whose methods print.
fn printing<D: ApiDevice>(alloc: Global, device: D) -> Result<Vec<SlotOf<D>>, NoMemory>
    requires { HasLog (D.told device) [] }
    ensures { IfOk result (λ slots. AllAreSilent (views D.told D.faults slots.items)) }
{
    let class = Bytes::from_slice(alloc, b"java/io/PrintStream")?;
    let mut slots = Vec::new(alloc);
    slots.push(SlotOf { class, device })?;
    Ok(slots)
}
