// The order in which a command is judged (01): on a sound image, the steps A to G that all commands share, then
// the command's own steps, which `judge_create`, `judge_commands` and `judge_bodies` have. It reads and decides, and
// changes nothing.
#![tactic(auto)]

pub mod order;
