// Lists of edits that turn one patch into another: what one does, which are accepted, the shortest, and what holds of them.
// No routine stands here: `checker` and `planner` have them.
#![tactic(auto)]
