// Examples at the limits of the volume format and of the volume tool.
#![tactic(auto)]

#[cfg(test)]
mod files;
#[cfg(test)]
mod limits;
