// What a sheet accepts, a wider one accepts alike; so what is accepted without a warning was not cut, and its totals are the exact sums. No code.
#![tactic(auto)]
