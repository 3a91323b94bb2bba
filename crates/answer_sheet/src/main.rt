// Prints for each number the acknowledgement that it gets, to hold beside what a sender shows.
#![tactic(auto)]

mod sheet;

fn main(rt: HostRuntime) -> anyhow::Result<()> {
    sheet::print(&rt)
}
