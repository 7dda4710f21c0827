// Document 02, P12's last sentence: two sheets that compare as the same ring judge alike. Theorems: it has no function.
#![tactic(auto)]
