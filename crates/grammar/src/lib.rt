// No code stands here: specs/ has the grammar of a task's text, the text that spells a task, and what a reading and a writing answer; proofs/ shows that they agree with the scan.
#![tactic(auto)]
