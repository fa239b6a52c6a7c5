// Whole quarter pixels in, whole eighths out: the laws that `pixels` refuses no layout of such a run. There is no code here.
#![tactic(auto)]
