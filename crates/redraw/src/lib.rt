// Document 02, P12: redrawings of an outline that change no verdict. Theorems: it has no function.
#![tactic(auto)]
