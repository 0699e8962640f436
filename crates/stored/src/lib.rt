// One stored file for each unit: its records, its file as dumps and its file as stored, and what holds of them.
// No routine stands here: definitions, and what holds of them.
#![tactic(auto)]
