// Document 02, P12, over sheets' bytes: redrawn sheets judge alike, singly and in feeds. Theorems: it has no function.
#![tactic(auto)]
