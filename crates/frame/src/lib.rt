// The argument for shapes over any neighbour relation and any placement: definitions and laws. There is no code here.
#![tactic(auto)]
