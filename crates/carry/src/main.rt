// Carries labelled frames over plants and prints each step: what is sent, what is refused, and what comes out where.
#![tactic(auto)]

mod carrying;
mod jobs;
mod printing;

fn main(rt: HostRuntime) -> anyhow::Result<()> {
    jobs::over_a_ring(&rt)?;
    jobs::over_a_tunnel(&rt)?;
    jobs::windows(&rt)?;
    jobs::over_two_tunnels(&rt)
}
