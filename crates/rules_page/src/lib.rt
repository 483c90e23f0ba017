// Definitions and theorems only: the page of the reports.
#![tactic(auto)]
