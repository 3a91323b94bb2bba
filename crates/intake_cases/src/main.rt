// Takes an intake to each of its limits, and prints what every call came to.
#![tactic(auto)]

mod cases;
mod requests;
mod shown;

fn main(rt: HostRuntime) -> anyhow::Result<()> {
    cases::run(&rt)
}
