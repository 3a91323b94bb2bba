// Whole stories of uploads, told call by call, each with what was sent and what it came to.
#![tactic(auto)]

mod account;
mod closing;
mod refusals;
mod requests;
mod steps;
mod stories;

fn main(rt: HostRuntime) -> anyhow::Result<()> {
    stories::print(&rt)
}
