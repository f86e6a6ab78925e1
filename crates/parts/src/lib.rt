// Components of a graph by its edges: the definitions and laws that units, potential units, rooms and room graphs share. There is no code here.
#![tactic(auto)]
