//! The sequential machine: one instruction after another, each done before the next is fetched. It is what the pipeline is held to.
#![tactic(auto)]

pub mod fetch;
pub mod machine;
pub mod record;
pub mod run;
