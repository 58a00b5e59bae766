// Rehearses cutovers through the network, over a ring plant and over tunnels, and prints each step.
#![tactic(auto)]

mod jobs;
mod printing;
mod steps;

fn main(rt: HostRuntime) -> anyhow::Result<()> {
    jobs::over_a_ring(&rt)?;
    jobs::over_a_tunnel(&rt)?;
    jobs::over_two_tunnels(&rt)
}
