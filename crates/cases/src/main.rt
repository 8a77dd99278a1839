// Runs 01's sample cases, its limits, 02's forms, wrapper and small expressions and the articles' examples by the proved
// operations, and prints what comes out.
#![tactic(auto)]

mod document_000;
mod documents_001_004;
mod expressions;
mod forms;
mod limits;
mod print;
mod sample;
mod wrapper;

use std::io;

fn main(rt: HostRuntime) -> io::Result<()> {
    sample::run(&rt)?;
    forms::run(&rt)?;
    wrapper::run(&rt)?;
    expressions::run(&rt)?;
    document_000::run(&rt)?;
    documents_001_004::run(&rt)?;
    limits::run(&rt)
}
