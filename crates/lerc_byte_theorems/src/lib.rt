// What is claimed of Huffman images; there is no code here.
#![tactic(auto)]
