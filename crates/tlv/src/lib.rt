// What holds of the reader, the writer and the search of the LLDP power TLV together: laws and cases, and no code.
#![tactic(auto)]
