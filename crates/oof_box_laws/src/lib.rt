// What CSS says of one box and of what it adds to the scrollable overflow, as laws over the definitions. There is no code here.
#![tactic(auto)]
