// Jams and peeling (document 01, "Static maps"): definitions and laws over any items and cells, and no code.
#![tactic(auto)]
